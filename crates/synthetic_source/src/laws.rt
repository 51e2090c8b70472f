//! Laws that calls above may cite.
ghost use Rattle.synthetic_source.specs.Laws.{CellsOfDocumentsFit, RebuiltTypes, RebuiltSettles};

/// The document that a raw row stands for types as that row, and a row that it types as stands for
/// the same document.
pub fn rebuilt_types()
    ensures types { RebuiltTypes }
    ensures settles { RebuiltSettles }
{}

/// The cells of a document without fault fit the schema, and its labels have few enough values: what `type_cells` promises of
/// its answer, for `document_cells` alone.
pub fn cells_of_documents_fit()
    ensures { CellsOfDocumentsFit }
{}
