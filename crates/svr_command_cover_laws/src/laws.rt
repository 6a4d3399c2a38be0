// What the numbers of a report are.

ghost use Rattle.svr_command_cover_laws.specs.Numbers.{ReportsTellNumbersOfSamples};

/// Behind a run the counter of a group is the number of the run's samples of exactly its class, that of a bin the number of those whose value is in the bin, and that of a tuple the number of those whose values are in all its bins. The bins of a point are those that the text asks for.
pub fn reports_tell_numbers_of_samples()
    ensures { ReportsTellNumbersOfSamples }
{}
