//! That the calls do to the pages what the sections of the plain map do to them.
ghost use Rattle.page_pool.specs.PlainMapPages.{BeginsAsTheMap, FreeAreFreeFrames, MapsAsTheSection, UnmapsAsTheSection, FlushesAsTheSection, PopulatesAsTheSection, FillsAsTheSection, DepopulatesAsTheSection, ZeroesAsTheSection, AddsAsTheSection, SumsAsTheSection};

/// What `PageSide` begins with, has free and leaves is what the plain map has and what its sections leave.
pub fn sections()
    ensures begins { BeginsAsTheMap }
    ensures free { FreeAreFreeFrames }
    ensures maps { MapsAsTheSection }
    ensures unmaps { UnmapsAsTheSection }
    ensures flushes { FlushesAsTheSection }
    ensures populates { PopulatesAsTheSection }
    ensures fills { FillsAsTheSection }
    ensures depopulates { DepopulatesAsTheSection }
    ensures zeroes { ZeroesAsTheSection }
    ensures adds { AddsAsTheSection }
    ensures sums { SumsAsTheSection }
{}
