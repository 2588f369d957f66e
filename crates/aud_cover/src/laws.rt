//! Laws of the definitions. Each function does nothing: its contract is the law.

ghost use Rattle.aud_cover.specs.Laws.{ClosedIsRefuted};

/// What is closed over refuted prefixes is refuted.
pub fn closed_is_refuted()
    ensures { ClosedIsRefuted }
{}
