//! Reads and writes whole, each law as the clause of an empty function.

ghost use Rattle.end_relation.specs.Access.Events.{ReadIsKept, WriteIsKept, ReadGoes, WriteGoes};

/// A read that no stop ends keeps the relation of each page, where settling does.
pub fn read_is_kept()
    ensures { ReadIsKept }
{}

/// A write that no stop ends keeps the relation of each page, where settling does.
pub fn write_is_kept()
    ensures { WriteIsKept }
{}

/// No page differs in a read, where none does in settling.
pub fn read_goes()
    ensures { ReadGoes }
{}

/// No page differs in a write, where none does in settling.
pub fn write_goes()
    ensures { WriteGoes }
{}
