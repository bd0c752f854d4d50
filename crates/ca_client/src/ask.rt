//! What is asked of a client under its lock.
use ca_arena::Handle;
use ca_dbr::Value;

/// A request on a channel, whose outcome comes later.
#[derive(Debug, Drop)]
pub enum RequestCall {
    /// The value of this channel, as this type from 0 to 20 and with this many elements; a count of
    /// 0 asks for those that there are.
    Read(Handle, u16, u32),
    /// The value of this channel with display data, as this type from 21 to 34 and with this many
    /// elements; a count of 0 asks for those that there are.
    ReadDisplay(Handle, u16, u32),
    /// To write this value to this channel.
    Put(Handle, Value),
}

/// What the core is asked to do.
#[derive(Clone, Copy, Debug, PartialEq, Eq)]
pub enum CoreCall {
    /// To read the next message of this circuit.
    Step(Handle),
    /// To end this circuit, which was cut.
    Cut(Handle),
    /// To end this circuit, as its caller wants.
    Close(Handle),
    /// To begin this circuit, which was connected.
    Connect(Handle),
    /// To clear this channel.
    Clear(Handle),
    /// To go by this moment, in milliseconds.
    Tick(u64),
}
