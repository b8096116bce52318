//! Laws of the log, for those who follow it.
ghost use Rattle.hp_segs.specs.LogPlaces.{LogIsPlaced, RangesAreOutside, SlotsAreFew};

/// The log of a sound value is one of its pools' lists, which lie apart; external memory lies outside of them; and they have
/// at most 16,384 slots, with the pages of external memory. A participant that follows the log stands on this. Own.
pub fn log_law()
    ensures placed { LogIsPlaced }
    ensures outside { RangesAreOutside }
    ensures few { SlotsAreFew }
{}
