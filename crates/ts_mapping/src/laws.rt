//! Laws that calls above may cite.
ghost use Rattle.ts_mapping.specs.Laws.{BodiesAreTemplates, LeastIsLeast, PartsOfLeavesFit, ReadingsFit, TemplatesHaveBodies};

/// The path that a refusal names is one of those at fault in its kind, and stands behind none of them in byte order.
pub fn least_is_least()
    ensures { LeastIsLeast }
{}

/// What a body gives that nothing refuses has all that is known of templates in memory.
pub fn bodies_are_templates()
    ensures { BodiesAreTemplates }
{}

/// A template in memory of which all that is known is that of some body that nothing refuses.
pub fn templates_have_bodies()
    ensures { TemplatesHaveBodies }
{}

/// What a leaf is read as at a field of a type is a value of the type, whatever the leaf.
pub fn readings_fit()
    ensures { ReadingsFit }
{}

/// The parts that an aggregate's leaf is read as have 64 bits, and count one value or more.
pub fn parts_of_leaves_fit()
    ensures { PartsOfLeavesFit }
{}
