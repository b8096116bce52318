ghost use Rattle.std.specs.Prelude.{ℕ, List};
ghost use Rattle.hp_zone.specs.Laws.{DirectoryReplays, HasNumbers, NamesStayShort, ZonesReplay};
ghost use Rattle.hp_zone.specs.declared.name_change.NameChange.{NameChange};
ghost use Rattle.hp_zone.specs.declared.zone.ZoneChange.{ZoneChange};

/// The constants are the numbers of the rules: 2,560 memzones, names of 31 bytes, external sockets from 256 on. This law and the
/// next are proved of all values; their functions have no code. Own.
pub fn names_law()
    ensures { HasNumbers }
{}

/// A log may be replayed in parts: what its first changes leave, with the others done to it, is what all leave. Who has seen the front of
/// a log knows what that front leaves. Own.
pub fn replay_law()
    ensures zones { (log more : List ZoneChange) → ZonesReplay log more }
    ensures directory { (sockets : List ℕ) (log more : List NameChange) → DirectoryReplays sockets log more }
{}

/// Where each name that was inserted has 1 to 31 bytes, each heap of a directory has such a name: those of sockets are shorter. Own.
pub fn short_names_law()
    ensures { (sockets : List ℕ) (log : List NameChange) → NamesStayShort sockets log }
{}
