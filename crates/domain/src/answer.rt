// What an event is answered with: the reply, and how many octets are sent.
use crate::numbers::Reply;

#[derive(Clone, Copy)]
pub struct Answer {
    pub reply: Reply,
    pub sent: usize,
}
