//! What a request for a document is told.
ghost use Rattle.std.specs.Prelude.{◌≡◌, [], ◌∷◌, codes, IfOk};
ghost use Rattle.reply_json.specs.Trees.{member};
ghost use Rattle.reply_json.specs.declared.out.Out.{Word as word};
ghost use Rattle.row_cells.specs.Fitting.{Fits};
ghost use Rattle.ts_mapping.specs.Schemas.{IsTemplateSchema};
ghost use Rattle.tsds_service.specs.Questions as spec;

use crate::reply::Reply;
use edge_face::{NoMemory, Text};
use reply_json::{Members, Out};
use row_cells::Row;
use std::alloc::Global;
use stream_catalog::HeldIndex;
use synthetic_source::rebuild;

/// An index and an id, with room for so many members.
fn id_members(alloc: Global, number: usize, index: &Text, id: &Text) -> Result<Members, NoMemory>
    ensures { IfOk result (λ members. members ≡ member (codes "_index") (word index.now) ∷ member (codes "_id") (word id.now) ∷ []) }
{
    let members = Members::with_capacity(alloc, number)?
        .with("_index", Out::Word(index.copy(alloc)?))?
        .with("_id", Out::Word(id.copy(alloc)?))?;
    Ok(members)
}

/// The reply where no row of the index that answers has the id.
pub(crate) fn no_document(alloc: Global, index: &Text, id: &Text) -> Result<Reply, NoMemory>
    ensures { IfOk result (λ reply. reply ≡ spec.no_document index.now id.now) }
{
    let members = id_members(alloc, 3, index, id)?.with("found", Out::Flag(false))?;
    Ok(Reply {
        status: 404,
        body: members.object(),
    })
}

/// The reply that shows a row of the index as its document, which has the id.
pub(crate) fn document_reply(
    alloc: Global,
    index: &HeldIndex,
    id: &Text,
    row: &Row,
) -> Result<Reply, NoMemory>
    requires schema { IsTemplateSchema index.now.mapping.schema }
    requires fits { Fits index.now.mapping.schema row.now }
    ensures { IfOk result (λ reply. reply ≡ spec.document_reply index.now id.now row.now) }
{
    let source = rebuild(alloc, &index.mapping.schema, row)?;
    let members = id_members(alloc, 4, &index.name, id)?
        .with("found", Out::Flag(true))?
        .with("_source", source)?;
    Ok(Reply {
        status: 200,
        body: members.object(),
    })
}
