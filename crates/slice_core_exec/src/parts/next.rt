ghost use Rattle.std.specs.Prelude.{◌≡◌, ℕ, ◌<◌, true};
ghost use Rattle.slice_core_spec.specs.Next.{IsNextAt, IsNextIn};
ghost use Rattle.slice_core_spec.specs.Calls.{PartsView, AfterDeliverNext, CanDeliver, IsNextPick, next_pick};
ghost use Rattle.slice_core_spec.specs.Ring.{has_mail_at, looked_at, next_at, next_in, pick_of};
ghost use Rattle.slice_core_spec.specs.Turn.{ServesInTurn};
ghost use Rattle.slice_core_spec.specs.View.{View, IsShaped};
ghost use Rattle.slice_queues.specs.Ring.{is_listed};
ghost use Rattle.slice_core_exec.specs.Found.{IsLocated, IsMade, IsOfSlice};

use super::Parts;
use address_map::{Local, Locator};
use mshr_file::MissFile;
use slice_answer::{DeliveredNext, Delivery};
use slice_queues::{Channel, Class, Pick};

impl<F: MissFile> Parts<F> {
    /// Makes the delivery that is next of the class, if one can be made. It looks at the lines with pending messages
    /// from the front of their ring on; the lines that it looked at go after the others.
    pub fn deliver_next(&mut self, class: Class) -> DeliveredNext
        requires { CanDeliver self.old }
        ensures step { AfterDeliverNext self.old class result self.new }
        ensures turn { ServesInTurn self.old class result self.new }
    {
        let lines = self.lines;
        let (next, looked) = self.deliver_first(class);
        let answer = pick_of(lines, next);
        self.queues.rotate(looked);
        answer
    }

    // Makes the delivery of the class that is next, if one can be made. Returns also how many lines of the ring were
    // looked at for it.
    fn deliver_first(&mut self, class: Class) -> (Delivery<(Local, Channel)>, usize)
        requires delivers { CanDeliver self.old }
        ensures next { result.0 ≡ next_in self.old.view class self.old.ring }
        ensures looked { result.1 ≡ looked_at self.old.view class self.old.ring }
        ensures found { IsNextIn self.old.view class result.0 }
        ensures made { IsMade self.old result.0 self.new }
        ensures listed { (local : ℕ) → has_mail_at self.old.view local ≡ true → is_listed self.old.ring local ≡ true }
    {
        let mut next = Delivery::Nothing;
        for index in 0..self.queues.ring_len() {
            let local = self.queues.ring_at(index);
            let made = self.deliver_on(local, class);
            if let Delivery::Moved(_) = made {
                return (made, index + 1);
            }
            next = next.or(made);
        }
        (next, self.queues.ring_len())
    }

    // Makes the delivery of the class that is next of a line, if one can be made.
    fn deliver_on(&mut self, local: Local, class: Class) -> Delivery<(Local, Channel)>
        requires line { local.0 < self.old.view.lines.lines }
        requires delivers { CanDeliver self.old }
        ensures next { result ≡ next_at self.old.view class local }
        ensures found { IsNextAt self.old.view local class result }
        ensures made { IsMade self.old result self.new }
    {
        let mut next = Delivery::Nothing;
        let mut left = self.queues.line(local).left_in(class);
        while let Some(channel) = self.queues.line(local).next_left(&mut left) {
            let one = self.deliver_at(local, channel).with((local, channel));
            if let Delivery::Moved(_) = one {
                return one;
            }
            next = next.or(one);
        }
        next
    }

    /// Returns what is to be delivered next of the class: [`Parts::deliver_next`] delivers it. It looks at the same
    /// lines, and turns none.
    pub fn next(&self, class: Class) -> Delivery<Pick>
        requires { IsShaped self.now.view }
        ensures next { result ≡ next_pick self.now class }
        ensures found { IsNextPick self.now.view class result }
    {
        pick_of(self.lines, self.find_next(class))
    }

    // What is to be delivered next of the class.
    fn find_next(&self, class: Class) -> Delivery<(Local, Channel)>
        requires shaped { IsShaped self.now.view }
        ensures next { result ≡ next_in self.now.view class self.now.ring }
        ensures found { IsNextIn self.now.view class result }
    {
        let mut next = Delivery::Nothing;
        for place in 0..self.queues.ring_len() {
            let found = self.next_at(self.queues.ring_at(place), class);
            if let Delivery::Moved(_) = found {
                return found;
            }
            next = next.or(found);
        }
        next
    }

    // What is to be delivered next of a line.
    fn next_at(&self, local: Local, class: Class) -> Delivery<(Local, Channel)>
        requires line { local.0 < self.now.view.lines.lines }
        requires shaped { IsShaped self.now.view }
        ensures next { result ≡ next_at self.now.view class local }
        ensures found { IsNextAt self.now.view local class result }
    {
        let mut next = Delivery::Nothing;
        let mut waiting = self.queues.line(local).waiting_in(class);
        while let Some(channel) = waiting.next() {
            let planned = self.plan(local, channel).with((local, channel));
            if let Delivery::Moved(_) = planned {
                return planned;
            }
            next = next.or(planned);
        }
        next
    }
}

// The same by the line's number in the memory.
fn pick_of(lines: Locator, next: Delivery<(Local, Channel)>) -> Delivery<Pick>
    requires { IsOfSlice lines next }
    ensures pick { result ≡ pick_of lines next }
    ensures there { IsLocated lines next }
{
    match next {
        Delivery::Nothing => Delivery::Nothing,
        Delivery::Blocked => Delivery::Blocked,
        Delivery::Broken(cell) => Delivery::Broken(cell),
        Delivery::Moved((local, channel)) => Delivery::Moved(channel.at(lines.line_at(local))),
    }
}
