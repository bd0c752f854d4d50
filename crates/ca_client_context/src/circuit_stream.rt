//! A socket over the system's stream, with what its last calls showed.
ghost use Rattle.std.specs.Prelude.{◌≡◌};

use ca_client::{Moved, Socket};
use mio::net::TcpStream;
use std::io;
use std::io::{Read, Write};

// The system's stream, of whose bytes nothing is known. Its faults are counted.
#[derive(Drop)]
pub(crate) struct CircuitStream {
    stream: TcpStream,
    failed: u64,
    // Something was read in this turn.
    pub(crate) came: bool,
    // Nothing more is read in this turn: the last read left nothing, or a caller sends.
    //
    // What came is handled before the next read, which may find that the server
    // has closed the circuit.
    pub(crate) drained: bool,
    // The last write left something, and the system may have room for it.
    pub(crate) behind: bool,
    // The system had no room for the last write: it tells once there is some.
    pub(crate) full: bool,
}

impl CircuitStream {
    // A socket over this stream, which had no fault yet.
    pub(crate) fn new(stream: TcpStream) -> CircuitStream
        ensures { ⟦<CircuitStream as Socket>⟧.fault_count result ≡ 0 }
    {
        CircuitStream {
            stream,
            failed: 0,
            came: false,
            drained: true,
            behind: false,
            full: false,
        }
    }
}

impl Socket for CircuitStream {
    ghost use Rattle.std.specs.Prelude.{⊤};

    ghost gives = { λ _ _ _. ⊤ };

    ghost takes = { λ _ _ _. ⊤ };

    ghost fault_count = { λ w. w.failed };

    fn read(&mut self, buffer: &mut [u8]) -> Moved {
        if self.drained {
            return Moved::Later;
        }
        self.drained = true;
        match self.stream.read(buffer) {
            Ok(0) => {
                self.failed += 1;
                Moved::Fault
            }
            Ok(count) => {
                self.came = true;
                self.drained = count < buffer.len();
                Moved::Count(count)
            }
            Err(error) => {
                if is_later(&error) {
                    Moved::Later
                } else {
                    self.failed += 1;
                    Moved::Fault
                }
            }
        }
    }

    fn write(&mut self, bytes: &[u8]) -> Moved {
        self.behind = false;
        self.full = false;
        match self.stream.write(bytes) {
            Ok(count) => {
                self.behind = count < bytes.len();
                Moved::Count(count)
            }
            Err(error) => {
                if is_later(&error) {
                    self.full = true;
                    Moved::Later
                } else {
                    self.failed += 1;
                    Moved::Fault
                }
            }
        }
    }

    fn faults(&self) -> u64 {
        self.failed
    }
}

fn is_later(error: &io::Error) -> bool {
    error.kind() == io::ErrorKind::WouldBlock || error.kind() == io::ErrorKind::Interrupted
}
