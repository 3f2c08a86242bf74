// Bringing over, in place: sets tree 3 of a closed session by the rule of document 02, Note 6, over what the session holds beside its arrays
// and the arrays that the rule asks for, lent.
#![tactic(auto)]

ghost use Rattle.in_place.specs.InPlace.{SizedForThird};
ghost use Rattle.bringing.specs.Bringing.{BringsIn};

use in_place::State;
use refusals::Refusal;

// Brings a closed session over, under whichever rule it was closed: 19 on an empty one, 21 on an open one.
pub fn bring_over(
    st: State,
    links: &[u16],
    births: &[u16],
    tree3: &mut [u16],
) -> Result<(), Refusal>
    requires { SizedForThird links.now births.now tree3.old }
    ensures { BringsIn st links.now births.now tree3.old result tree3.new }
{
    st.stage.require_closed()?;
    let table = in_place::stored(st.m, links);
    thirds::set_tree3(tree3, st.n, table, st.root, st.last, births);
    Ok(())
}
