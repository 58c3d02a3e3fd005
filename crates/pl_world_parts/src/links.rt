ghost use Rattle.std.specs.Prelude.{◌≡◌, Contains, IfSome};
ghost use Rattle.pl_wiring.specs.LiveLinks.{IsFor};
ghost use Rattle.pl_world.specs.LinksAndMoves.{link_between, with_link};

use pl_wiring::{Link, LinkStates, SwitchNo, Wiring};

/// The link that joins two switches, in either order.
pub fn link_of(wiring: &Wiring, a: SwitchNo, b: SwitchNo) -> Option<Link>
    ensures is { result ≡ link_between wiring.now a.0 b.0 }
    ensures there { IfSome result (λ link. Contains wiring.now.links link) }
{
    match wiring.link(a, b) {
        None => None,
        Some(link) => Some(link),
    }
}

/// Makes a link live or failed, at both its ends.
pub fn set_live(links: &mut LinkStates, wiring: &Wiring, link: Link, live: bool)
    requires made_for { IsFor wiring.now links.old }
    requires there { Contains wiring.now.links link }
    ensures set { links.new ≡ with_link links.old link live }
    ensures made_for { IsFor wiring.now links.new }
{
    let _k = wiring.k();
    links.set(wiring, link.lower, link.upper, live);
}
