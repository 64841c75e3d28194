//! What the word `help` prints.

pub(crate) const HELP: &str = "\
Each line of a script is played: issue, evict, deliver, pump, hand, word, state, waiting, show, stats, log.
Lines that configure the machine come before them.
  load C W            core C asks for word W, under its lowest free tag
  store C W V         .. writes V
  add C W V           .. adds V
  cas C W E N         .. writes N where the value is E
  next, next S        makes the next delivery of the first slice that has one, or of slice S
  undo                takes the last line back, with all that it did
  save FILE           writes the script so far into a new file
  help                prints this
  quit                ends, as the end of the input does
Replies are handed out as they come.
";
