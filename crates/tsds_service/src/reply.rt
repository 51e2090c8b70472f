//! Replies.
use reply_json::Out;

/// What is sent back for one request.
#[derive(Debug, Drop)]
pub struct Reply {
    /// A status of HTTP (RFC 9110).
    pub status: u16,
    pub body: Out,
}
