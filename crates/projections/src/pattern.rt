// The variables of a pattern, and their new numbers.
ghost use Rattle.std.specs.Prelude.{◌≡◌, ◌≤◌};
ghost use Rattle.projections.specs.Projection.{among, place};

// Whether a pattern has a variable. By `any`: variables are counted in usize, which `contains` would ask to be narrowed.
pub(crate) fn has(pattern: &[u8], variable: usize) -> bool
    ensures { result ≡ among pattern.now variable }
{
    pattern.iter().any(|v| usize::from(*v) == variable)
}

// How many variables before this one a pattern has; no more than its number, so that the cast cuts nothing.
pub(crate) fn new_number(pattern: &[u8], variable: u8) -> u8
    ensures value { result ≡ place (among pattern.now) variable }
    ensures low { result ≤ variable }
{
    (0..variable)
        .filter(|v| has(pattern, usize::from(*v)))
        .count() as u8
}
