//! The least of many times, by a tree in one slice. The leaf of place `p` stands at `room + p`. Each node `i` below `room` has the
//! lesser of those at `2 * i` and `2 * i + 1`, so the node at 1 has the least of all.
ghost use Rattle.std.specs.Prelude.{◌≡◌, ℕ, ◌+◌, ◌<◌, ◌≤◌, drop, length, slice_index, slice_set};
ghost use Rattle.timer.specs.Tree.{IsTree};

/// Writes the time of this place, and then updates the nodes above it.
pub fn set_leaf(nodes: &mut [u128], room: usize, place: usize, time: u128)
    requires tree { IsTree room nodes.old }
    requires within { place < room }
    ensures tree { IsTree room nodes.new }
    ensures leaves { drop room nodes.new ≡ slice_set (drop room nodes.old) place time }
{
    let mut node = room + place;
    nodes[node] = time;
    while node > 1 {
        node /= 2;
        let left = nodes[node + node];
        let right = nodes[node + node + 1];
        let lesser = if left <= right { left } else { right };
        if nodes[node] == lesser {
            return;
        }
        nodes[node] = lesser;
    }
}

/// The place of the least time, or one of several where several are equal.
pub fn first_leaf(nodes: &[u128], room: usize) -> usize
    requires tree { IsTree room nodes.now }
    requires some { 0 < room }
    ensures within { result < room }
    ensures least { slice_index (drop room nodes.now) result ≡ slice_index nodes.now 1 }
{
    let mut node = 1;
    while node < room {
        let left = node + node;
        node = if nodes[left] == nodes[node] {
            left
        } else {
            left + 1
        };
    }
    node - room
}
