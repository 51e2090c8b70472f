//! Laws, as calls without effect.
ghost use Rattle.std.specs.Prelude.{◌≡◌};
ghost use Rattle.hits_page.specs.Limits.{deepest, most_entries};
ghost use Rattle.hits_page.specs.OrderOfOffers.{PagesInAnyOrder};
ghost use Rattle.hits_page.specs.declared.limits.TheConstants.{DEEPEST, MOST_ENTRIES};

/// The constants are the limits of the definitions.
pub fn limits_are_told()
    ensures deepest { DEEPEST ≡ deepest }
    ensures entries { MOST_ENTRIES ≡ most_entries }
{}

/// Rows of which no two are of one series, time and window give one page, in whatever order they are offered.
pub fn pages_in_any_order()
    ensures { PagesInAnyOrder }
{}
