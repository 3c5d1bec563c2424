ghost use Rattle.runner.specs.Laws.{LongerKeeps, TextTells};

// Laws over whole sessions. Nothing is computed; the statements are proved for every session.

pub fn longer_output_keeps_finished_lines()
    ensures { LongerKeeps }
{}

pub fn equal_output_means_equal_answers()
    ensures { TextTells }
{}
