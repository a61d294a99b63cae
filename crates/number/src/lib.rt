// The image's numbers: groups of seven bits, lowest first, the high bit set on all but the last.
#![tactic(auto)]

ghost use Rattle.std.specs.Prelude.{◌≡◌, ◌+◌, ◌≤◌, length};
ghost use Rattle.model.specs.Numbers.{digits};
ghost use Rattle.number.specs.Links.{GroupsPost, NumPost, WritePost};

// The groups that begin at place at: one, and at most left behind it.
fn read_groups(src: &[u8], at: usize, left: u32) -> Option<(u32, usize)>
    requires { left ≤ 4 }
    ensures { GroupsPost left src.now at result }
{
    if src.len() <= at {
        return None;
    }
    let x = u32::from(src[at]);
    let behind = at + 1;
    if left == 0 {
        if x < 16 {
            return Some((x, behind));
        }
        return None;
    }
    if x < 128 {
        return Some((x, behind));
    }
    let others = read_groups(src, behind, left - 1);
    let Some((rest, next)) = others else {
        return None;
    };
    if 0 < rest {
        return Some((x - 128 + 128 * rest, next));
    }
    None
}

// The number that begins at place at.
pub fn read_number(src: &[u8], at: usize) -> Option<(u32, usize)>
    ensures { NumPost src.now at result }
{
    read_groups(src, at, 4)
}

// How many groups n has: seven bits in each, as far as its bits reach; zero has one.
pub fn groups(n: u32) -> usize
    ensures { result ≡ length (digits n) }
{
    if n == 0 {
        return 1;
    }
    let zeros = u32::leading_zeros(n);
    ((38 - zeros) / 7) as usize
}

// Puts n at place at, and gives the place behind it.
pub fn write_number(out: &mut [u8], at: usize, n: u32) -> usize
    requires { at + length (digits n) ≤ length out.old }
    ensures { WritePost (digits n) out.old at out.new result }
{
    let mut rest = n;
    let mut i = at;
    // What is left of the number ends this, no count, so it is no `for`.
    while 128 <= rest {
        out[i] = (128 + rest % 128) as u8;
        rest /= 128;
        i += 1;
    }
    out[i] = rest as u8;
    i + 1
}
