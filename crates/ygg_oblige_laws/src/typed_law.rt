//! The layers of a typed file.

ghost use Rattle.ygg_oblige_laws.specs.TypedLayers.{TypedLayers};

/// Every layer of a file in the grammar without a type error is one without a type error on what it is specified over: the disk, or the
/// specification of the layer below, which answers whatever it is asked.
pub fn typed_layers()
    ensures { TypedLayers }
{}
