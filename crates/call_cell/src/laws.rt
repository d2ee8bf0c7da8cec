// A law of the definitions, for those who read them. The function does nothing.
ghost use Rattle.call_cell.specs.Laws.{SitesAreAlone};

/// After any calls each site is as its own classes, in order, would leave it alone.
pub fn sites_are_alone()
    ensures { SitesAreAlone }
{}
