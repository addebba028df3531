// Scopes: for each name, a number below `N`, the level at which it is bound. Three names stand in one number, each a digit of base `N`.
ghost use Rattle.std.specs.Prelude.{◌<◌};
ghost use Rattle.checks.specs.Scope.{Swapped, Bound, Unbound};

// What stood at three names.
#[derive(Drop)]
pub struct Old {
    pub x: u16,
    pub y: u16,
    pub z: u16,
}

// Puts `v` for the name `x`, and returns what stood there.
#[tactic(auto, using(crate::specs::Scope::laws))]
pub fn swap<const N: usize>(scope: &mut [u16; N], x: usize, v: u16) -> u16
    requires { x < N }
    ensures { Swapped scope.old x v scope.new result }
{
    let old = scope[x];
    scope[x] = v;
    old
}

// Binds three names at the level `v`. Where there are fewer, a digit is that of no name, which changes nothing for a name.
#[tactic(auto, using(crate::specs::Scope::laws))]
pub fn bind<const N: usize>(scope: &mut [u16; N], names: u64, v: u16) -> Old
    requires { 0 < N }
    ensures { Bound N scope.old names v scope.new result.x result.y result.z }
{
    let base = N as u64;
    let z = swap(scope, (names / base / base % base) as usize, v);
    let y = swap(scope, (names / base % base) as usize, v);
    let x = swap(scope, (names % base) as usize, v);
    Old { x, y, z }
}

// Undoes that; the name that was bound last goes first.
#[tactic(auto, using(crate::specs::Scope::laws))]
pub fn unbind<const N: usize>(scope: &mut [u16; N], names: u64, old: Old)
    requires { 0 < N }
    ensures { Unbound N scope.old names scope.new old.x old.y old.z }
{
    let base = N as u64;
    swap(scope, (names % base) as usize, old.x);
    swap(scope, (names / base % base) as usize, old.y);
    swap(scope, (names / base / base % base) as usize, old.z);
}
