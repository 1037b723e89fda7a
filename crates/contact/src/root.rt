// 01, 'Contact gradient', and 02, item 4: the root of a number q, the greatest whole number whose square is at most 64·q, worked out from its highest bit
// down. It has eight bits, since 64·1023 is below 256², and 16 bits hold every square on the way.
ghost use Rattle.std.specs.Prelude.{◌≡◌, ◌*◌, ◌≤◌};
ghost use Rattle.model.specs.Gradient as Gradient;
ghost use Rattle.contact.specs.Halving.{RootFrom};

// The root's bits down to this one, from those above it: it is set where the square allows it.
fn with_bit(root: u16, bit: u16, square: u16) -> u16
    requires { RootFrom square root (2 * bit) × (1 ≤ bit) }
    ensures { RootFrom square result bit }
{
    let more = root + bit;
    if more * more <= square { more } else { root }
}

// The root of the number q.
pub fn root(q: u16) -> u16
    requires { q ≤ 1023 }
    ensures { result ≡ Gradient.root q }
{
    let square = 64 * q;
    let root = with_bit(0, 128, square);
    let root = with_bit(root, 64, square);
    let root = with_bit(root, 32, square);
    let root = with_bit(root, 16, square);
    let root = with_bit(root, 8, square);
    let root = with_bit(root, 4, square);
    let root = with_bit(root, 2, square);
    with_bit(root, 1, square)
}
