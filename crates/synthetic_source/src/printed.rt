//! What holds of the printed text of rebuilt documents.
ghost use Rattle.synthetic_source.specs.Laws.{PrintedReadsBack, PrintedFoldReadsBack};

/// The text that `print` makes of a rebuilt document of a raw schema, `read_line` reads as the row's normal form, where no
/// mapped path has more than 126 parts (a reader takes at most 127 levels). For a folded schema it does so where each sum
/// and each count of values has 64 bits, since a reader takes a greater number for a float.
pub fn printed_reads_back()
    ensures raw { PrintedReadsBack }
    ensures folded { PrintedFoldReadsBack }
{}
