//! Illnesses: the spans of periods in which a node isn't sound, and what the cluster made of them.

ghost use Rattle.std.specs.Prelude.{◌≡◌, ◌+◌, ◌-◌, ◌^◌, ◌<◌};
ghost use Rattle.node_grid.specs.Class.{is_sound};
ghost use Rattle.run_judged.specs.Illnesses.{worse};
ghost use Rattle.run_judged.specs.Growing.{or_now, begun, moved, suffered, grown};

use node_grid::Class;

/// A span of periods in which a node isn't sound: as long as it lasts, and until the node falls ill
/// again.
#[derive(Clone, Copy)]
pub struct Illness {
    /// The node.
    pub node: u8,
    /// Its first period.
    pub onset: u32,
    /// The class of the node in the first period: B, S or A.
    pub class: Class,
    /// The worst class, A before S before B, of the first period and of the periods of the illness
    /// in which a line touches a frame of the node.
    pub worst: Class,
    /// The last period of the illness in which a line touches a frame of the node; the first period
    /// where there is none.
    pub touched: u32,
    /// Whether the node was a member in the first period.
    pub member: bool,
    /// In how many periods of the illness the node was a member.
    pub periods_a_member: u32,
    /// The first period of the illness in which the node is charged.
    pub charged: Option<u32>,
    /// The period behind the illness, in which the node is sound again; None where it lasts.
    pub sound: Option<u32>,
    /// The first period of the node's next illness.
    pub relapse: Option<u32>,
    /// The first period, before the next illness, after which the node is no member any more.
    pub left: Option<u32>,
    /// The first period behind that, before the next illness, after which it is one again.
    pub back: Option<u32>,
}

/// What is seen of a node in a period.
#[derive(Clone, Copy)]
pub(crate) struct Sign {
    /// Its class.
    pub(crate) class: Class,
    /// Whether a line touches a frame of it.
    pub(crate) touched: bool,
    /// Whether it is a member.
    pub(crate) member: bool,
    /// Whether it is charged.
    pub(crate) charged: bool,
    /// Whether it leaves the members after the period.
    pub(crate) left: bool,
    /// Whether it joins them.
    pub(crate) joined: bool,
}

/// Whether a node of the class is sound.
pub(crate) fn is_sound(class: Class) -> bool
    ensures { result ≡ is_sound class }
{
    match class {
        Class::N | Class::J => true,
        Class::B | Class::S | Class::A => false,
    }
}

/// The worse of two classes: the first, where they are alike.
fn worse(one: Class, other: Class) -> Class
    ensures { result ≡ worse one other }
{
    match (one, other) {
        (Class::A, _) => one,
        (_, Class::A) => other,
        (Class::S, _) => one,
        (_, Class::S) => other,
        (Class::B, _) => one,
        (_, Class::B) => other,
        (_, _) => one,
    }
}

/// What stands, or else this period where it is the one.
fn or_now(before: Option<u32>, is_now: bool, period: u32) -> Option<u32>
    ensures { result ≡ or_now before is_now period }
{
    match before {
        Some(first) => Some(first),
        None if is_now => Some(period),
        None => None,
    }
}

impl Illness {
    /// An illness that begins in this period.
    pub(crate) fn begun(period: u32, node: u8, sign: &Sign) -> Illness
        ensures { result ≡ begun period node sign.now }
    {
        Illness {
            node,
            onset: period,
            class: sign.class,
            worst: sign.class,
            touched: period,
            member: sign.member,
            periods_a_member: u32::from(sign.member),
            charged: or_now(None, sign.charged, period),
            sound: None,
            relapse: None,
            left: or_now(None, sign.left, period),
            back: None,
        }
    }

    /// Adds one more period in which the node is ill.
    fn suffer(&mut self, period: u32, sign: &Sign)
        requires { self.old.periods_a_member < 2 ^ 32 - 1 }
        ensures { self.new ≡ suffered period sign.now self.old }
    {
        self.charged = or_now(self.charged, sign.charged, period);
        self.periods_a_member += u32::from(sign.member);
        if sign.touched {
            self.worst = worse(self.worst, sign.class);
            self.touched = period;
        }
    }

    /// Adds whether the node leaves or joins after one more period.
    fn go_about(&mut self, period: u32, sign: &Sign)
        ensures { self.new ≡ moved period sign.now self.old }
    {
        self.back = or_now(self.back, self.left.is_some() && sign.joined, period);
        self.left = or_now(self.left, sign.left, period);
    }

    /// Adds one more period, and what is seen of the node in it.
    pub(crate) fn go_on(&mut self, period: u32, sign: &Sign)
        requires { self.old.periods_a_member < 2 ^ 32 - 1 }
        ensures { self.new ≡ grown period sign.now self.old }
    {
        if self.relapse.is_some() {
            return;
        }
        if is_sound(sign.class) {
            self.sound = or_now(self.sound, true, period);
        } else if self.sound.is_some() {
            self.relapse = Some(period);
            return;
        } else {
            self.suffer(period, sign);
        }
        self.go_about(period, sign);
    }
}
