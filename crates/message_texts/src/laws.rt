//! States the law that an encoded text reads back.
ghost use Rattle.message_texts.specs.Laws.{EncodedReadsBack};

/// The text of messages reads back as those messages if the names in them make a listing.
pub fn encoded_reads_back()
    ensures holds { EncodedReadsBack }
{}
