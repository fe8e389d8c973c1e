// The rig as a static library for the C host: its one entry, which hands on to the proved function
// of the same name and promises the same.
#![tactic(auto)]

ghost use Rattle.std.specs.Prelude.{◌≡◌, ℕ, length, Result};
ghost use Rattle.market.specs.declared.types.Refusal.{Refusal};
ghost use Rattle.rules.specs.Rankings.{size_time};
ghost use Rattle.session.specs.Sessions.{answer_of, host_number, listing_after, no_quotes, session_lines, FairSession, Short, Ran};

use session::running;

// The entry of the C host: the length of the listing, or 100,000 plus the number of the refusal.
#[unsafe(no_mangle)]
pub extern "C" fn rig_session(file: &[u8], listing: &mut [u8]) -> u32
    ensures answer { result ≡ host_number (answer_of size_time no_quotes (session_lines (length listing.old) file.now)) }
    ensures listing { listing.new ≡ listing_after size_time no_quotes (session_lines (length listing.old) file.now) listing.old }
    ensures fair { FairSession size_time no_quotes (session_lines (length listing.old) file.now) }
    ensures short { Short (answer_of size_time no_quotes (session_lines (length listing.old) file.now)) }
    ensures ran { (r : Result ℕ Refusal) × (result ≡ host_number r) × Ran file.now listing.old listing.new r }
{
    running::rig_session(file, listing)
}
