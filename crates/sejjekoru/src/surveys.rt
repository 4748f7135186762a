// Surveyors' files for C.
ghost use Rattle.sejjekoru.specs.Surveys.{ReadSurveyTells, WriteSurveyTells};

#[unsafe(no_mangle)]
pub extern "C" fn sejjekoru_read_survey(
    file: &[u8],
    bays: &mut u64,
    rails: &mut [u16],
    value: &mut u64,
) -> u64
    ensures { ReadSurveyTells file.now rails.old result value.new bays.new rails.new }
{
    let survey = survey_files::read(file, rails);
    *bays = survey.bays;
    let verdict = survey.verdict;
    numbers::told(verdict, value)
}

#[unsafe(no_mangle)]
pub extern "C" fn sejjekoru_write_survey(
    bays: u64,
    rails: &[u16],
    out: &mut [u8],
    value: &mut u64,
) -> u64
    ensures { WriteSurveyTells bays rails.now out.old result value.new out.new }
{
    let verdict = survey_files::write(bays, rails, out);
    numbers::told(verdict, value)
}
