//! Items by the steps to them.
ghost use Rattle.std.specs.Prelude.{◌≡◌, ◌++◌, ◌∷◌, [], IsSomeAnd, List, Option, Some, option_and_then};
ghost use Rattle.ild_splice_changes.specs.TreeChange.{TreeStep, child, nth, part_at};
ghost use Rattle.ild_data.specs.Data.{Data};
ghost use Rattle.ild_path_replaced.specs.Seen.{all_steps, tree_steps};
ghost use Rattle.ild_path_replaced.specs.There.{IsThere};
ghost use Rattle.ild_splice.specs.Splices.{IsAt};

use ild_cbor::Node;
use ild_path_steps::PartSteps;

// The value of a pair.
fn second<'b>(pair: Option<Node<'b>>) -> Option<Node<'b>>
    ensures { (t : Data) (q : List TreeStep) (o : Option Data) → IsThere t q o pair.entry → IsThere t (q ++ nth 1 ∷ []) (option_and_then (λ e. child (nth 1) e) o) result }
{
    match pair {
        Some(pair) => pair.item(1),
        None => None,
    }
}

/// The item of the part to which steps lead in an item.
pub fn part_of<'b>(node: &Node<'b>, steps: &PartSteps<'_>) -> Option<Node<'b>>
    ensures { (t d : Data) (q : List TreeStep) → IsAt node.now t q d → IsThere t (q ++ tree_steps steps.now) (part_at (tree_steps steps.now) d) result }
{
    match steps {
        PartSteps::Item(i) => node.item(*i),
        PartSteps::Entry(key) => node.entry(key),
        PartSteps::Pair(i) => second(node.item(*i)),
        PartSteps::Whole | PartSteps::Same | PartSteps::Beside(_) => Some(*node),
    }
}

/// The item of a block to which steps lead from its root, one after another.
pub fn node_along<'b>(root: Node<'b>, steps: &[PartSteps<'_>]) -> Option<Node<'b>>
    ensures { (t d : Data) → IsAt root.entry t [] t → part_at (all_steps steps.now) t ≡ Some d → IsSomeAnd result (λ n. IsAt n t (all_steps steps.now) d) }
{
    let mut node = root;
    let mut k = 0;
    while k < steps.len() {
        match part_of(&node, &steps[k]) {
            Some(next) => {
                node = next;
            }
            None => return None,
        }
        k += 1;
    }
    Some(node)
}
