use std::io;

/// Puts a text into a new file of this name. If there is a file already, it leaves that and returns
/// [`io::ErrorKind::AlreadyExists`].
pub trait Saver {
    fn save(&mut self, name: &str, text: &[u8]) -> io::Result<()>;
}
