// The first byte of a response.
ghost use Rattle.std.specs.Prelude.{◌≡◌, ◌<◌};
ghost use Rattle.lists.specs.Lists.{at};
ghost use Rattle.message.specs.Response.{response_head};

// Kind 2, a node (the scheme: box) and a zero bit.
pub fn head_byte(node: usize) -> u8
    requires { node < 8 }
    ensures { result ≡ at (response_head node) 0 }
{
    (32 + 2 * node) as u8
}
