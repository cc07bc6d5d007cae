//! The laws. What a request means to the device is told by its history; what bytes mean, `parse` says.
ghost use Rattle.std.specs.Prelude.{◌≡◌, ℕ, option_map};
ghost use Rattle.vub_base.specs.declared.header.CacheMode.{CacheMode};
ghost use Rattle.vub_base.specs.declared.request.Ask.{Ask};
ghost use Rattle.vub_driver.specs.Requests.{pieces};
ghost use Rattle.vub_device.specs.declared.entry.Asked.{Asked};
ghost use Rattle.vub_device.specs.Requests.{request_of, look_at, effect_at};
ghost use Rattle.vub_blkreq.specs.Requests.{meaning};
ghost use Rattle.vub_blkreq_laws.specs.Meanings.{IsLaidOut, mode_of, given, readable_in, writable_in, request_to, carried_out, read_at, written_at, sector_of};

/// The bytes that the driver lays out for a request mean to the device that request, or its refusal
/// with the same status: for each request whose numbers fit their bytes, each capacity and each mode.
pub fn bytes_mean_the_request()
    ensures { (capacity : ℕ) (mode : CacheMode) (ask : Ask) → IsLaidOut ask
        → meaning (mode_of capacity mode) (given ask) ≡ request_to capacity mode (request_of ask) }
{}

/// The buffer of a request has as many bytes to read and to write as the device is given.
pub fn buffers_have_the_bytes_given()
    ensures readable { (buffer : ℕ) (ask : Ask) → readable_in (pieces buffer ask) ≡ (given ask).readable }
    ensures writable { (buffer : ℕ) (ask : Ask) → writable_in (pieces buffer ask) ≡ (given ask).writable }
{}

/// A request that isn't refused reads and writes the sectors of what is asked, in their order.
pub fn sectors_are_those_of_the_request()
    ensures read { (request : Asked) (place : ℕ) → read_at (carried_out request) place ≡ look_at request place }
    ensures written { (request : Asked) (place : ℕ) → written_at (carried_out request) place ≡ option_map sector_of (effect_at request place) }
{}
