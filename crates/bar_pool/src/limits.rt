/// Where several workers search, each has at least so many inputs. A search takes some ten to fifty microseconds, about as
/// long as a thread takes to start and to be joined: so one worker is done sooner with a few.
pub const LEAST_FOR_A_WORKER: usize = 8;
