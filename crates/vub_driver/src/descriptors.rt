ghost use Rattle.std.specs.Prelude.{◌≡◌};
ghost use Rattle.vub_driver.specs.Requests.{descriptors_needed, has_data};

use vub_base::Ask;

/// Whether data stands between the header of a request and its status.
pub fn has_data(ask: &Ask) -> bool
    ensures { result ≡ has_data ask.now }
{
    !matches!(ask, Ask::Flush)
}

/// How many descriptors a request has.
pub fn descriptors_needed(ask: &Ask) -> u16
    ensures { result ≡ descriptors_needed ask.now }
{
    if has_data(ask) { 3 } else { 2 }
}
