//! What comes over a node's input.

use depot_gossip::SendRequest;
use depot_questions::Question;
use depot_requests::Request;

/// What is asked of a node.
#[derive(Drop)]
pub enum Asked {
    /// To do something.
    Request(Request),
    /// To tell what it knows.
    Question(Question),
    /// To send within bounds, or to say a hello that goes further back.
    Sending(SendRequest),
    /// To hand its trace in for an audit. The trace has no reads: a node that is asked so keeps none.
    Export,
}
