//! What holds of each storm, whatever is drawn.

ghost use Rattle.storm.specs.Laws.{UnrefusedLaw, StormLaw};

/// No rule refuses the parts of a storm.
pub fn unrefused()
    ensures { UnrefusedLaw }
{}

/// A storm has at most 448 fault lines and 64 restarts, and each of its periods is claimed, has at
/// most one faulty node, and spares nodes 0 to 4.
pub fn weathered()
    ensures { StormLaw }
{
    safety::laws::talk::reception();
    safety::laws::views::start();
    safety::laws::views::step();
    safety::laws::views::spared();
}
