use address_map::{Block, CoreId};

/// What a core sends to the directory on its request channel.
#[derive(Clone, Copy, Debug, PartialEq, Eq)]
pub enum RequestMessage {
    GetS,
    GetM,
    PutS,
    PutM(Block),
}

/// What the directory sends to a core on its forwarded channel. The core that is named is the requester.
#[derive(Clone, Copy, Debug, PartialEq, Eq)]
pub enum ForwardedMessage {
    FwdGetS(CoreId),
    FwdGetM(CoreId),
    Inv(CoreId),
    PutAck,
}

/// What a core gets on its data channel.
#[derive(Clone, Copy, Debug, PartialEq, Eq)]
pub enum DataMessage {
    /// The block, and how many acknowledgements its receiver has to await.
    Data { block: Block, acks: u8 },
    /// The block as the only copy.
    DataE(Block),
}

/// A message of any channel.
#[derive(Clone, Copy, Debug, PartialEq, Eq)]
pub enum Message {
    Request(RequestMessage),
    Forwarded(ForwardedMessage),
    Data(DataMessage),
    /// The sender invalidated its shared copy.
    InvAck,
    /// A block on its way home to the directory.
    Home(Block),
}
