// Laws of typed patterns: each function ensures one.
ghost use Rattle.syntax.specs.Laws.{ReadMayBe, RefusedExactly, TypedReadsBack};

pub fn read_may_be()
    ensures { ReadMayBe }
{}

pub fn typed_reads_back()
    ensures { TypedReadsBack }
{}

pub fn refused_exactly()
    ensures { RefusedExactly }
{}
