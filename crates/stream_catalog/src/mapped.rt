//! Which index maps a field of a template in another way.
ghost use Rattle.std.specs.Prelude.{◌≡◌};
ghost use Rattle.std.specs.Option.{option_map};
ghost use Rattle.row_cells.specs.Each.{Each};
ghost use Rattle.row_cells.specs.Fitting.{FieldsAscend};
ghost use Rattle.stream_catalog.specs.Mapped as spec;

use crate::facts::HeldIndex;
use edge_face::{Text, bytes_order};
use ts_mapping::{Template, first_other};

/// The path of a field of a template, and the name of an index that maps it in another way.
#[derive(Clone, Copy)]
pub(crate) struct OtherField<'a> {
    pub(crate) path: &'a Text,
    pub(crate) index: &'a Text,
}

/// Of what an index maps in another way and what later ones do, that with the lesser path, and else that of the index.
fn earlier_of<'a>(
    template: &'a Template,
    index: &'a HeldIndex,
    later: Option<OtherField<'a>>,
) -> Option<OtherField<'a>>
    requires template { FieldsAscend template.now.schema.fields }
    requires index { FieldsAscend index.now.mapping.schema.fields }
    ensures { option_map spec.seen_other result ≡ spec.earlier_of (spec.other_in template.now.name template.now.schema.fields index.now) index.now.name (option_map spec.seen_other later.entry) }
{
    if index.template.as_bytes() != template.name.as_bytes() {
        return later;
    }
    let fields = index.mapping.schema.fields.as_slice();
    let Some(field) = first_other(template.schema.fields.as_slice(), fields) else {
        return later;
    };
    let other = OtherField {
        path: &field.path,
        index: &index.name,
    };
    let Some(later) = later else {
        return Some(other);
    };
    if bytes_order(later.path.as_bytes(), field.path.as_bytes()).is_lt() {
        Some(later)
    } else {
        Some(other)
    }
}

/// The first field of a template, by paths, that an index of the template's name maps in another way, and the first such index.
pub(crate) fn first_changed<'a>(
    template: &'a Template,
    indices: &'a [HeldIndex],
) -> Option<OtherField<'a>>
    requires template { FieldsAscend template.now.schema.fields }
    requires indices { Each (λ i. FieldsAscend i.mapping.schema.fields) indices.now }
    ensures { option_map spec.seen_other result ≡ spec.first_other_of template.now.name template.now.schema.fields indices.now }
{
    let mut first = None;
    for at in (0..indices.len()).rev() {
        first = earlier_of(template, &indices[at], first);
    }
    first
}
