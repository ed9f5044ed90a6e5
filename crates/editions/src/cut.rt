// Edge numbers of 32 bits as numbers of 16, for the checker.
ghost use Rattle.std.specs.Prelude.{◌≡◌, ◌≤◌, length};
ghost use Rattle.lists.specs.Places.{put_over};
ghost use Rattle.editions.specs.Inside.{cut_of, cut_all};

// Each of the numbers, or 65,535 for one above it, at the front of a place.
pub(crate) fn cut_into(edges: &[u32], low: &mut [u16])
    requires { length edges.now ≤ length low.old }
    ensures { low.new ≡ put_over (cut_all edges.now) low.old }
{
    for i in 0..edges.len() {
        low[i] = cut(edges[i]);
    }
}

fn cut(x: u32) -> u16
    ensures { result ≡ cut_of x }
{
    u16::try_from(x).unwrap_or(65535)
}
