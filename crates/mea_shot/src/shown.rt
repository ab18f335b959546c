//! What `Debug` and `Display` show of the types here: the name alone, since of a message and a waker nothing is asked. What a
//! refused send leaves is an error.
use crate::message::Message;
use crate::receiver::{Receiver, Recv};
use crate::sender::{Sender, Sent, Unsent};
use mea_base::Wake;
use std::error::Error;
use std::fmt;

impl<T: Message + Drop, W: Wake + Drop> fmt::Debug for Sender<T, W> {
    fn fmt<O: fmt::Write>(&self, f: &mut fmt::Formatter<O>) -> fmt::Result {
        f.write_str("Sender { .. }")
    }
}

impl<T: Message + Drop, W: Wake + Drop> fmt::Debug for Receiver<T, W> {
    fn fmt<O: fmt::Write>(&self, f: &mut fmt::Formatter<O>) -> fmt::Result {
        f.write_str("Receiver { .. }")
    }
}

impl<T: Message + Drop, W: Wake + Drop> fmt::Debug for Recv<T, W> {
    fn fmt<O: fmt::Write>(&self, f: &mut fmt::Formatter<O>) -> fmt::Result {
        f.write_str("Recv { .. }")
    }
}

impl<T: Message, W> fmt::Debug for Sent<T, W> {
    fn fmt<O: fmt::Write>(&self, f: &mut fmt::Formatter<O>) -> fmt::Result {
        f.write_str("Sent { .. }")
    }
}

impl<T: Message, W> fmt::Debug for Unsent<T, W> {
    fn fmt<O: fmt::Write>(&self, f: &mut fmt::Formatter<O>) -> fmt::Result {
        f.write_str("Unsent(..)")
    }
}

impl<T: Message, W> fmt::Display for Unsent<T, W> {
    fn fmt<O: fmt::Write>(&self, f: &mut fmt::Formatter<O>) -> fmt::Result {
        f.write_str("sending on a closed channel")
    }
}

impl<T: Message + Drop, W: Drop> Error for Unsent<T, W> {}
