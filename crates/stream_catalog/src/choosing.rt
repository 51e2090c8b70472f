//! Which template a new stream takes.
ghost use Rattle.std.specs.Prelude.{◌≡◌};
ghost use Rattle.std.specs.Option.{option_copied};
ghost use Rattle.stream_catalog.specs.Names as spec;

use edge_face::bytes_order;
use index_names::pattern_takes;
use ts_mapping::Template;

/// Whether a pattern of a template takes a name.
fn matches(name: &[u8], template: &Template) -> bool
    ensures { result ≡ spec.matches name.now template.now }
{
    for pattern in template.patterns.as_slice() {
        if pattern_takes(pattern.as_bytes(), name) {
            return true;
        }
    }
    false
}

/// Whether a template goes before another one that matches too.
fn outranks(template: &Template, other: &Template) -> bool
    ensures { result ≡ spec.outranks template.now other.now }
{
    if other.priority < template.priority {
        return true;
    }
    if other.priority != template.priority {
        return false;
    }
    bytes_order(template.name.as_bytes(), other.name.as_bytes()).is_le()
}

/// The one of two templates that goes first.
fn better_of<'a>(template: &'a Template, other: Option<&'a Template>) -> &'a Template
    ensures { result.now ≡ spec.better_of template.now (option_copied other.entry) }
{
    match other {
        None => template,
        Some(other) => {
            if outranks(template, other) {
                template
            } else {
                other
            }
        }
    }
}

/// The template that a stream of a name takes: of those with a pattern that takes it the one of greatest priority, and of these the
/// one with the least name.
pub(crate) fn template_for<'a>(name: &[u8], templates: &'a [Template]) -> Option<&'a Template>
    ensures { option_copied result ≡ spec.template_for name.now templates.now }
{
    let mut best = None;
    for at in (0..templates.len()).rev() {
        let template = &templates[at];
        if matches(name, template) {
            best = Some(better_of(template, best));
        }
    }
    best
}
