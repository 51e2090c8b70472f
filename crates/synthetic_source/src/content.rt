// What a field shows, where its dates are instants.
ghost use Rattle.synthetic_source.specs.Contents.{IsWhat, what_prop};

use crate::what::What;

/// What a field shows, whose dates are instants.
#[derive(Clone, Copy)]
pub struct Content<'a> {
    pub what: What<'a>,
    pub ghost fits: { IsWhat what } by { what_prop what },
}
