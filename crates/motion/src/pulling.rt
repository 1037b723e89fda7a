// 02, item 3: what a working leaves of the gradient of a contact.
ghost use Rattle.std.specs.Prelude.{◌≡◌, ◌^◌, pos, ◌+ℤ◌, ◌-ℤ◌, ◌≤ℤ◌};
ghost use Rattle.integers.specs.Size.{◌within◌};
ghost use Rattle.model.specs.Step.{left};

// What is left of the gradient of a contact whose variable falls by `change` from `contact`: 0 where it pulls.
pub fn gradient_left(gradient: i64, contact: i32, change: i64) -> i64
    requires { (pos 0 ≤ℤ gradient) × (change within 2 ^ 60) }
    ensures { result ≡ left gradient (contact +ℤ (contact -ℤ change)) }
{
    let twice = 2 * (contact as i64);
    if twice < change { 0 } else { gradient }
}
