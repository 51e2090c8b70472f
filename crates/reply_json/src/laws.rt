//! What holds of the texts of replies.
ghost use Rattle.reply_json.specs.Reading.{PrintedReadsBack, OneReply};

/// The text of a reply is read as its tree, whatever the order of its members, where its numbers have 64 bits and it nests
/// within 127 levels.
pub fn printed_reads_back()
    ensures { PrintedReadsBack }
{}

/// A text is that of one reply, where numbers have 64 bits.
pub fn texts_tell_replies()
    ensures { OneReply }
{}
