//! How a thread is started for its work (`ThreadWork`), and what becomes of the work if the system
//! has no thread for it.
use ca_text::Refusal;
use std::net::{Net, TcpListener, TcpStream};
use std::sync::Wait;
use std::sync::atomic::{AtomicBool, Ordering};
use std::thread;
use std::thread::{JoinHandle, Threads};
use std::time::Clock;

/// Work for a thread of its own.
pub(crate) trait ThreadWork<T>: Drop {
    fn run<R: Wait + Clock + Net<Stream = TcpStream, Listener = TcpListener>>(self, rt: &R) -> T;
}

/// Starts a thread for the work. The work's type is a parameter, so that whether it may cross is
/// asked of it alone. Refused as Device.
pub(crate) fn started<
    T: Send + Drop + 'static,
    R: Threads
        + Wait
        + Clock
        + Net<Stream = TcpStream, Listener = TcpListener>
        + Copy
        + Send
        + 'static,
    W: ThreadWork<T> + Send + 'static,
>(rt: R, work: W) -> Result<JoinHandle<T>, Refusal> {
    match thread::spawn(&rt, move || work.run(&rt)) {
        Ok(handle) => Ok(handle),
        Err(_) => Err(Refusal::Device),
    }
}

/// Starts a thread for the work, too. If none can be had, the word is set, and the work is done
/// here: it is to end at once then.
pub(crate) fn started_or_ended<
    T: Send + Drop + 'static,
    R: Threads
        + Wait
        + Clock
        + Net<Stream = TcpStream, Listener = TcpListener>
        + Copy
        + Send
        + 'static,
    W: ThreadWork<T> + Send + 'static,
>(rt: R, work: W, is_to_end: &AtomicBool) -> Result<JoinHandle<T>, T> {
    match thread::spawn(&rt, move || work.run(&rt)) {
        Ok(handle) => Ok(handle),
        Err(refused) => {
            is_to_end.store(true, Ordering::SeqCst);
            let work = refused.value;
            Err(work())
        }
    }
}
