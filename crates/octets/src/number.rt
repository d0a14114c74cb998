// Numbers of up to 8 bytes in either order: what the Rust takes from nom::number::complete.
ghost use Rattle.std.specs.Prelude.{◌≡◌, length};
ghost use Rattle.octets.specs.Cursor.{width_of};
ghost use Rattle.octets.specs.Number.{spelled};

use crate::Endianness;
use crate::cursor::Width;

// The number that all the bytes of part spell. There is no loop, and the order is settled before a byte is read: so a compiler makes each arm one load.
pub(crate) fn number(part: &[u8], width: Width, order: Endianness) -> u64
    requires { length part.now ≡ width_of width }
    ensures { result ≡ spelled order part.now }
{
    match width {
        Width::One => u64::from(part[0]),
        Width::Two => {
            let bytes = [part[0], part[1]];
            u64::from(match order {
                Endianness::Little => u16::from_le_bytes(bytes),
                Endianness::Big => u16::from_be_bytes(bytes),
            })
        }
        Width::Four => {
            let bytes = [part[0], part[1], part[2], part[3]];
            u64::from(match order {
                Endianness::Little => u32::from_le_bytes(bytes),
                Endianness::Big => u32::from_be_bytes(bytes),
            })
        }
        Width::Eight => {
            let bytes = [
                part[0], part[1], part[2], part[3], part[4], part[5], part[6], part[7],
            ];
            match order {
                Endianness::Little => u64::from_le_bytes(bytes),
                Endianness::Big => u64::from_be_bytes(bytes),
            }
        }
    }
}
