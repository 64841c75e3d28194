/// What a request for a line is to do at the miss registers.
#[derive(Clone, Copy, Debug, PartialEq, Eq)]
pub enum Admission {
    /// The line has a register, and it has room for the request.
    Join,
    /// The line has no register, and one can be opened.
    Open,
    /// The line's register has no room for another target.
    NoTarget,
    /// The line has no register, and none can be opened.
    NoRegister,
}
