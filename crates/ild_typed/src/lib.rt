//! Typed values, their representations and the causes of a refusal: definitions, and laws as the contracts of functions
//! without a body (IPLD Schemas; IPLD HashMap).
#![tactic(auto)]

ghost use Rattle.ild_typed.specs.WhyLaws.{FrontOrRefused, LayerOrWhy, OneRefusal, PartsAreTrees, RefusedHaveNoFront, RootsAreTold};
ghost use Rattle.ild_typed.specs.WayLaws.{PartsAreReached, RefusalsAreReached};
ghost use Rattle.ild_typed.specs.Ways.{WaysLead};
ghost use Rattle.ild_typed.specs.TreeLaws.{BlocksAreNested, FrontsAreTrees, ShownAreTrees, StorableBlocks, ValuesAreTrees, ValuesHaveFronts};
ghost use Rattle.ild_typed.specs.AtLaws.{IndicesAreDecimals, ReachesParts};
ghost use Rattle.ild_typed.specs.JoinLaws.{JoinsAreJoins, PairsArePairs};
ghost use Rattle.ild_typed.specs.Laws.{InLayersAll, LayersTell, OneFront, OneText, OneWhole, TextsRepresent};
ghost use Rattle.ild_typed.specs.StandLaws.{BareIsFrame, OneStands, StorableWhere, TreesAreSound, ValuesHaveTrees};

/// The data of a layer tell its form and the data of its parts.
pub fn layers_tell()
    ensures { LayersTell }
{}

/// Data have one front at most.
pub fn one_front()
    ensures { OneFront }
{}

/// A text represents one value of a type at most.
pub fn one_text()
    ensures { OneText }
{}

/// The texts of a type are those that represent a value of it, whatever the hash of keys.
pub fn texts_represent()
    ensures { TextsRepresent }
{}

/// A value is represented as null, or by one layer whose parts are represented.
pub fn in_layers()
    ensures { InLayersAll }
{}

/// Two whole values of one representation are one, where the nodes of their HAMTs are held.
pub fn one_whole()
    ensures { OneWhole }
{}

/// Data of a type have a layer exactly where no cause of a refusal holds of them.
pub fn layer_or_why()
    ensures { LayerOrWhy }
{}

/// The parts of a tree of a type are trees.
pub fn parts_are_trees()
    ensures { PartsAreTrees }
{}

/// A tree is the root map of a HAMT exactly where its test says so.
pub fn roots_are_told()
    ensures { RootsAreTold }
{}

/// Data of which a piece is refused have no front that fits.
pub fn refused_have_no_front()
    ensures { RefusedHaveNoFront }
{}

/// A tree has a front that fits, or the walk of it refuses a piece.
pub fn front_or_refused()
    ensures { FrontOrRefused }
{}

/// The walk of data refuses one piece at most.
pub fn one_refusal()
    ensures { OneRefusal }
{}

/// A way in data leads to an item that is spelled at its offset.
pub fn ways_lead()
    ensures { WaysLead }
{}

/// The way of a part leads to its item, or to that of the whole in which it stands.
pub fn parts_are_reached()
    ensures { PartsAreReached }
{}

/// The way of a refusal leads to the item that is refused.
pub fn refusals_are_reached()
    ensures { RefusalsAreReached }
{}

/// The data of a front are a tree, nested no deeper than the front's room.
pub fn fronts_are_trees()
    ensures { FrontsAreTrees }
{}

/// The representation of a value is a tree, nested no deeper than the room in which the value fits.
pub fn values_are_trees()
    ensures { ValuesAreTrees }
{}

/// The representation of a value has a front in the room in which the value fits.
pub fn values_have_fronts()
    ensures { ValuesHaveFronts }
{}

/// The blocks of the nodes of a value's HAMTs are nested no deeper than its room either.
pub fn blocks_are_nested()
    ensures { BlocksAreNested }
{}

/// Each block of a value that a store can hold is within the limits of a block.
pub fn storable_blocks()
    ensures { StorableBlocks }
{}

/// The shown form of a value is a tree, nested no deeper than the room in which the value fits.
pub fn shown_are_trees()
    ensures { ShownAreTrees }
{}

/// A bare root is a frame of the kind that the laws speak of.
pub fn bare_roots_are_frames()
    ensures { BareIsFrame }
{}

/// One value at most stands under an id.
pub fn one_stands()
    ensures { OneStands }
{}

/// A typed value without a hole, a broken delimiter and a HAMT without a trie has a representation.
pub fn values_have_trees()
    ensures { ValuesHaveTrees }
{}

/// A value that has a representation has no hole, breaks no delimiter and has a trie for each HAMT.
pub fn trees_are_sound()
    ensures { TreesAreSound }
{}

/// A typed value can be held unless one of five causes stands against it.
pub fn storable_where()
    ensures { StorableWhere }
{}

/// A path leads to a part exactly where it leads to it with no root of a HAMT to be entered on the way.
pub fn paths_reach_parts()
    ensures { ReachesParts }
{}

/// A segment is an index exactly where it is the decimal of one.
pub fn indices_are_decimals()
    ensures { IndicesAreDecimals }
{}

/// The text that is joined of parts is the one that a split takes apart into them.
pub fn joins_are_joins()
    ensures { JoinsAreJoins }
{}

/// And so of pairs.
pub fn pairs_are_pairs()
    ensures { PairsArePairs }
{}
