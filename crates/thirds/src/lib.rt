// Tree 3 by the rule of document 02, Note 6, on lent slices: from last outwards, by falling births, each link twice.
// Number h of the table is half-link h, which leads from its own switch to the link's other end.
#![tactic(auto)]

ghost use Rattle.std.specs.Prelude.{◌≡◌, suc, ◌*◌, ◌≤◌, ◌<◌, length};
ghost use Rattle.mondschein.specs.Network.{size};
ghost use Rattle.mondschein.specs.Order.{shortest};
ghost use Rattle.network.specs.Load.{network_of, table_of};
ghost use Rattle.thirds.specs.Tree3.{birth_read, tree3_of, Nearest};
ghost use Rattle.thirds.specs.Chains.{ChainedFrom, Linked};
ghost use Rattle.thirds.specs.Nearing.{FollowsHalf, FollowsChain, FollowsChains};

// What ends a chain of half-links: there are at most 8,192.
const END: u16 = 8192;

// The birth of a switch, by long ear: there are at most 1,024.
#[tactic(auto, unfolding(crate::specs::Tree3::birth_read))]
fn birth(births: &[u16], v: u16) -> u16
    ensures { result ≡ birth_read births.now v }
{
    rows::entry(births, v).min(1024)
}

// Puts the half-link of link i that leads to a later birth before the others of its own switch's birth.
#[tactic(auto, using(crate::proofs::Chaining::read_most), unfolding(mondschein::specs::Network::size))]
fn chain_link(links: &[u16], births: &[u16], i: usize, heads: &mut [u16], nexts: &mut [u16])
    requires { ChainedFrom links.now (birth_read births.now) (suc i) heads.old nexts.old
        × (i < size (table_of links.now)) × (length links.now ≤ 8193) }
    ensures { ChainedFrom links.now (birth_read births.now) i heads.new nexts.new }
{
    let a = birth(births, links[2 * i]) as usize;
    let b = birth(births, links[2 * i + 1]) as usize;
    if a < b {
        nexts[i] = heads[a];
        heads[a] = (2 * i) as u16;
    } else if b < a {
        nexts[i] = heads[b];
        heads[b] = (2 * i + 1) as u16;
    }
}

// The chains of every birth, the last link first.
#[tactic(auto, unfolding(mondschein::specs::Network::size))]
fn chain_links(links: &[u16], births: &[u16], heads: &mut [u16], nexts: &mut [u16])
    requires { ChainedFrom links.now (birth_read births.now) (size (table_of links.now)) heads.old nexts.old × (length links.now ≤ 8193) }
    ensures { ChainedFrom links.now (birth_read births.now) 0 heads.new nexts.new }
{
    for i in (0..links.len() / 2).rev() {
        chain_link(links, births, i, heads, nexts);
    }
}

// Takes the far end of half-link h for its own switch's parent where that makes the walk shorter, or is a lower number for the same length.
#[tactic(auto, unfolding(mondschein::specs::Network::size))]
fn follow_half(row: &mut [u16], dist: &mut [u16], n: u16, links: &[u16], h: usize)
    requires { (h < 2 * size (table_of links.now)) × (length row.old ≡ 1024) × (length dist.old ≡ 1024) }
    ensures { FollowsHalf n links.now h row.old dist.old row.new dist.new }
{
    let x = network::far_end(links, h);
    let v = links[h] as usize;
    if n <= x || 1024 <= x || 1024 <= v {
        return;
    }
    let near = dist[x as usize];
    let far = dist[v];
    if far <= near {
        return;
    }
    if near + 1 < far {
        dist[v] = near + 1;
        row[v] = x;
    } else if x < row[v] {
        row[v] = x;
    }
}

// Follows one chain from its first half-link.
#[tactic(auto, unfolding(mondschein::specs::Network::size))]
fn follow_chain(row: &mut [u16], dist: &mut [u16], n: u16, links: &[u16], nexts: &[u16], start: u16)
    requires { (length row.old ≡ 1024) × (length dist.old ≡ 1024) × Linked links.now nexts.now }
    ensures { FollowsChain n links.now nexts.now start
        row.old dist.old row.new dist.new }
{
    let end = 2 * (links.len() / 2);
    let mut h = start as usize;
    // A `while`: the turns follow a chain of half-links to its end, which is past the last one.
    while h < end {
        follow_half(row, dist, n, links, h);
        h = nexts[h / 2] as usize;
    }
}

// Follows every chain, by falling births.
#[tactic(auto, unfolding(mondschein::specs::Network::size))]
fn follow_chains(
    row: &mut [u16],
    dist: &mut [u16],
    n: u16,
    links: &[u16],
    heads: &[u16],
    nexts: &[u16],
)
    requires { (length row.old ≡ 1024) × (length dist.old ≡ 1024) × (length heads.now ≡ 1024) × Linked links.now nexts.now }
    ensures { FollowsChains n links.now heads.now nexts.now 0
        row.old dist.old row.new dist.new }
{
    for head in heads.iter().rev() {
        follow_chain(row, dist, n, links, nexts, *head);
    }
}

// For each switch the lowest number among the neighbours born later whose own third walk is shortest, or n.
fn set_nearest(row: &mut [u16], n: u16, links: &[u16], last: u16, births: &[u16])
    requires { (length row.old ≡ 1024) × (length births.now ≡ 1024) × (length links.now ≤ 8193) }
    ensures { Nearest n links.now last births.now row.old row.new }
{
    // The chains stand in two arrays of fixed length, since there is no heap: the first half-link of each birth, and the next of each link.
    let mut heads = [END; 1024];
    let mut nexts = [END; 4096];
    chain_links(links, births, &mut heads, &mut nexts);
    let mut dist = [n; 1024];
    rows::store(&mut dist, last, 0);
    row.fill(n);
    follow_chains(row, &mut dist, n, links, &heads, &nexts);
}

// Tree 3: root for last and for the root itself, and for any other switch its neighbour by the rule.
pub fn set_tree3(row: &mut [u16], n: u16, links: &[u16], root: u16, last: u16, births: &[u16])
    requires { (length row.old ≡ 1024) × (length births.now ≡ 1024) × (length links.now ≤ 8193) }
    ensures { row.new ≡ tree3_of shortest (network_of n links.now root 0 last) births.now row.old }
{
    set_nearest(row, n, links, last, births);
    rows::store(row, last, root);
    rows::store(row, root, root);
}
