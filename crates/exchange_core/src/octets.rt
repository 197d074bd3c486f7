//! Octets and hardware addresses.

ghost use Rattle.std.specs.Prelude.{◌≡◌, ◌≤◌, ◌++◌, drop, length};
ghost use Rattle.ip_frame.specs.Places.{AreOctets};

use net_types::Mac;

/// The MAC of a frame that isn't addressed yet.
pub const NOBODY: Mac = Mac([0; 6]);

/// A hardware address has six octets.
pub fn known(mac: Mac)
    ensures { length mac.0 ≡ 6 }
{}

/// Octets are below 256.
pub fn are_octets(octets: &[u8])
    ensures { AreOctets octets.now }
{}

/// Sends a frame to another MAC.
pub fn readdress(frame: &mut [u8], to: Mac)
    requires { 6 ≤ length frame.old }
    ensures { frame.new ≡ to.0 ++ drop 6 frame.old }
{
    frame[..6].copy_from_slice(&to.0);
}
