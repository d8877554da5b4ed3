//! The TCP of the system: thin adapters, of which contracts know the counts of faults and the mark of a reply alone.

mod arriving;
mod client;
mod closing;
mod conn;
mod door;
mod ended;
mod listening;
mod look;
mod port;
mod replying;
mod written;

pub use conn::TcpConn;
pub use door::TcpDoor;
pub use ended::EndedConn;
